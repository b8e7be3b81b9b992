//! What comes before the lines: the policy, the style, and the parts of the page.

/// What comes before the lines.
pub const HEAD: &str = r##"<!doctype html>
<html lang="en">
<head>
<meta charset="utf-8">
<meta http-equiv="Content-Security-Policy" content="default-src 'none'; script-src 'sha256-mUOmKgTdZVhERDZLTSjYIzJ9zUQMIBkhZB2ZYaj8NXk='; style-src 'sha256-XKVkzifYMbmyCly1sLUoHbHA4vv/JDbiF/BUDZqlRv4='; base-uri 'none'; form-action 'none'">
<meta name="viewport" content="width=device-width, initial-scale=1">
<title>Custody of a trace</title>
<style>
:root { color-scheme: light dark; --ink: #1a1a1a; --faint: #4a4a4a; --ground: #fff; --raised: #f0f0f0; --pointed: #dcdcdc; --rule: #e2e2e2; --edge: #c4c4c4; --border: #6b6b6b; --link: #0b4f8a; --alarm: #a00020; --rejected: #fde8ec; }
@media screen and (prefers-color-scheme: dark) {
:root { --ink: #e6e6e6; --faint: #b8b8b8; --ground: #17191c; --raised: #2a2d31; --pointed: #3d4146; --rule: #34383d; --edge: #50555b; --border: #90959b; --link: #8cc4ff; --alarm: #ff8fa3; --rejected: #4d1522; }
}
body { margin: 1rem auto; padding: 0 1rem; max-width: 90rem; font: 15px/1.45 system-ui, sans-serif; color: var(--ink); background: var(--ground); }
h1 { font-size: 1.4rem; margin: 0; }
h2 { font-size: 1.1rem; margin: 1.4rem 0 .3rem; }
p { margin: .3rem 0; }
label { white-space: nowrap; }
select, input, button { font: inherit; color: inherit; background: var(--ground); border: 1px solid var(--border); border-radius: 3px; padding: .15rem .45rem; }
button { background: var(--raised); cursor: pointer; }
button:hover { background: var(--pointed); }
button.line { border: 0; background: none; padding: 0; color: var(--link); text-decoration: underline; }
input:not([type=checkbox]) { width: 6.5rem; }
::placeholder { color: var(--faint); opacity: 1; }
:focus-visible { outline: 3px solid var(--link); outline-offset: 2px; }
.controls { display: flex; flex-wrap: wrap; gap: .5rem 1rem; align-items: center; margin: .8rem 0; }
.buttons { display: flex; flex-wrap: wrap; gap: .3rem; }
figure { margin: 0; }
canvas { display: block; width: 100%; touch-action: pan-y; cursor: crosshair; }
#hover { min-height: 1.45em; font-weight: 600; }
.legend { display: flex; flex-wrap: wrap; gap: .2rem 1.3rem; list-style: none; margin: .2rem 0; padding: 0; }
.legend svg { vertical-align: -2px; background: #fff; outline: 1px solid #fff; }
.private { fill: #7aa2cf; }
.shared { fill: #8f4300; }
.hatch { fill: none; stroke: #ffdcb8; }
.reached { fill: #120300; }
.read { fill: #fff; stroke: #000; }
.write { fill: #000; stroke: #fff; }
.refusal { fill: #d4002a; stroke: #fff; }
#keys { color: var(--faint); }
#question label { margin-right: .6rem; }
#answer { display: block; min-height: 1.45em; margin: .4rem 0; font-weight: 600; }
#fault { font-weight: 600; border: 2px solid var(--alarm); padding: .5rem; }
.table { max-height: 24rem; overflow: auto; border: 1px solid var(--edge); margin-top: .3rem; }
table { border-collapse: collapse; width: 100%; font-variant-numeric: tabular-nums; }
caption { text-align: left; padding: .2rem .5rem; }
th, td { text-align: left; vertical-align: top; padding: .1rem .5rem; border-bottom: 1px solid var(--rule); }
thead th { position: sticky; top: 0; background: var(--raised); }
td.number, th.number { text-align: right; width: 1%; }
tr.measured td { border-bottom: 0; }
tr.rejected td { background: var(--rejected); font-weight: 600; }
code { font: .9em ui-monospace, monospace; overflow-wrap: anywhere; }
td code { display: inline-block; font-size: .85em; }
dl { display: grid; grid-template-columns: max-content 1fr; gap: .1rem .8rem; margin: .3rem 0; }
dd { margin: 0; }
footer { border-top: 1px solid var(--edge); margin-top: 1.5rem; }
@media print {
:root { color-scheme: light; }
body { margin: 0; padding: 0; max-width: none; font-size: 10pt; print-color-adjust: exact; -webkit-print-color-adjust: exact; }
.buttons, #keys, #hover, #question, label:has(#everyone) { display: none; }
select, input, button.more { border: 0; padding: 0; appearance: none; background: none; }
canvas { break-inside: avoid; }
.table { max-height: none; overflow: visible; border: 0; }
thead th { position: static; }
h2, caption, thead, tr.measured { break-after: avoid; }
thead, tr { break-inside: avoid; }
button.line { color: inherit; text-decoration: none; }
}
</style>
</head>
<body>
<h1>Custody of a trace</h1>
<p id="about">The lines of this page are read by its script.</p>
<noscript><p>This page needs its script, which reads the lines in the page's source and asks nothing of any network.</p></noscript>
<p id="fault" role="alert" hidden></p>
<main id="main" hidden>
<div class="controls">
<label>VM <select id="vm"></select></label>
<label>Lines <input id="first" type="number" min="1"></label>
<label>to <input id="last" type="number" min="1"></label>
<span class="buttons">
<button type="button" id="in" title="Zoom in (key +)">Zoom in</button>
<button type="button" id="out" title="Zoom out (key -)">Zoom out</button>
<button type="button" id="left" title="Earlier lines (left arrow key)">Earlier</button>
<button type="button" id="right" title="Later lines (right arrow key)">Later</button>
<button type="button" id="all" title="All lines (key 0)">All lines</button>
</span>
</div>
<figure>
<canvas id="plot" tabindex="0" role="img" aria-label="Frames of the VM" aria-describedby="keys hover">Frames of the VM, line by line. The tables below say the same.</canvas>
<p id="hover" aria-live="polite"></p>
<figcaption>
<ul class="legend">
<li><svg width="26" height="14" aria-hidden="true"><rect class="private" width="26" height="14"/></svg> private</li>
<li><svg width="26" height="14" aria-hidden="true"><rect class="shared" width="26" height="14"/><path class="hatch" d="M13 13l6-12m-1 12l6-12m-1 12l3-6"/></svg> shared, not mapped by the host</li>
<li><svg width="26" height="14" aria-hidden="true"><rect class="reached" width="26" height="14"/></svg> shared, and the host reaches it</li>
<li><svg width="14" height="14" aria-hidden="true"><rect class="read" x="4.5" y="1.5" width="5" height="11"/></svg> the host read</li>
<li><svg width="14" height="14" aria-hidden="true"><rect class="write" x="4.5" y="1.5" width="5" height="11"/></svg> the host wrote</li>
<li><svg width="14" height="14" aria-hidden="true"><path class="refusal" d="M7 1.5l5.5 10h-11z"/></svg> a refused call</li>
</ul>
<p id="keys">Each row is a frame for as long as the VM has it, in the order in which they came; from left to right go the lines of the trace. Wheel, + and - zoom, dragging and the arrow keys left and right move, up and down go from row to row, 0 shows all lines.</p>
</figcaption>
</figure>
<form id="question">
<h2>Who owned a frame</h2>
<label>Frame <input id="frame" type="number" min="0" required></label>
<label>after line <input id="line" type="number" min="1" required></label>
<button>Answer</button>
<output id="answer" for="frame line"></output>
</form>
<section>
<h2 id="lives-title">Lives</h2>
<div class="table" tabindex="0" role="region" aria-labelledby="lives-title"><table id="lives"></table></div>
</section>
<section>
<h2 id="shares-title">Sharing</h2>
<div class="table" tabindex="0" role="region" aria-labelledby="shares-title"><table id="shares"></table></div>
</section>
<section>
<h2 id="refusals-title">Refused calls</h2>
<label><input id="everyone" type="checkbox"> also those that do not concern this VM</label>
<div class="table" tabindex="0" role="region" aria-labelledby="refusals-title"><table id="refusals"></table></div>
</section>
<section>
<h2 id="accesses-title">Reads and writes of the host that were served</h2>
<div class="table" tabindex="0" role="region" aria-labelledby="accesses-title"><table id="accesses"></table></div>
</section>
</main>
<footer>
<h2>Of what, and by what</h2>
<dl id="digests"></dl>
<p>The lines are in the source of this page as <code>kcore custody --refused --accesses</code> writes them (or <code>--refused --unseen</code>), from the one that begins with <code>{"custody"</code> to the one that begins with <code>{"calls"</code>. What a browser shows of them is not proved.</p>
</footer>
<script id="lines" type="application/x-ndjson">
"##;
