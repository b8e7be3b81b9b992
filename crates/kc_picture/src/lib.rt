//! Pictures (SVG 1.1) of the custody of frames through a trace: of all frames, or of one VM's.
//!
//! Texts of SVG:
//! - how a length is spelled, and what is put into a text: `specs/Words.antt`, `src/coordinate.rt`, `src/words.rt`
//! - which shapes there are, and how they are painted: `src/svg.rt`; the colours: `src/colour.rt`
//! - where the lines of a trace and the columns of a picture lie: `specs/Columns.antt`, `src/scale.rt`
//! - what the foot of a picture says: `specs/Foot.antt`, `src/foot.rt`
//!
//! What every picture has, the lanes of VMs over time, and the title, axis, legend and foot around them:
//! - what happened to each VM: `src/vms.rt`
//! - how high the outline of a lane is in each column, and how it and the line below it are spelled:
//!   `specs/Outlines.antt`, `specs/OutlineWords.antt`; `src/outlines.rt`, `src/lane_drawing.rt`
//! - what the titles in a lane say: `specs/LaneTitles.antt`, `src/lane_titles.rt`
//! - how the rest is drawn, which no definition says: lives in lanes: `src/stay_drawing.rt`; words beside marks:
//!   `src/labels.rt`; title and axis: `src/sheet.rt`; legend: `src/legend.rt`; marks of calls: `src/shapes.rt`
//!
//! The picture of all frames:
//! - which bars it has: `kc_model/specs/Bars.antt`, `src/stretches.rt`
//! - what the titles of bars and cells say, and whose a cell is: `specs/Titles.antt`, `specs/Cells.antt`, `src/titles.rt`,
//!   `src/cells.rt`
//! - how frames are drawn, which no definition says: by bars: `src/exact.rt`; by cells: `src/cells.rt` over `src/sums.rt`;
//!   which bars are in which row: `src/rows.rt`; all together: `src/drawing.rt`; what tries it: `tests/pictures`
//!
//! The picture of one VM's frames, with marks of what was refused and served at them:
//! - which bars it has, and in which rows: `specs/VmRows.antt`, `src/vm_rows.rt`
//! - which marks it has, and what their titles say: `specs/Marks.antt`, `src/marks.rt`
//! - how it is drawn, which no definition says: `src/vm_drawing.rt`; its marks: `src/mark_drawing.rt`
#![tactic(auto)]

mod cells;
mod colour;
mod coordinate;
mod drawing;
mod exact;
mod foot;
mod labels;
mod lane_drawing;
mod lane_titles;
mod legend;
mod mark_drawing;
mod marks;
mod outlines;
mod rows;
mod scale;
mod shapes;
mod sheet;
mod stay_drawing;
mod stretches;
mod sums;
mod svg;
mod titles;
mod vm_drawing;
mod vm_rows;
mod vms;
mod words;

pub use drawing::picture;
pub use marks::{Mark, marks_of};
pub use stretches::bars;
pub use vm_drawing::picture_of_vm;
