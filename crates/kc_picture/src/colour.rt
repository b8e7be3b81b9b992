//! The colours of a picture. Those of the first VMs are Okabe and Ito's, which the colour-blind can distinguish.
ghost use Rattle.std.specs.Prelude.{◌≡◌, ◌%◌, ◌≤◌, slice_index_or};

use kc_types::Owner;
use std::fmt;

/// Red, green and blue, 0 to 255 each, as one number: 0xRRGGBB.
#[derive(Clone, Copy, PartialEq, Eq)]
pub struct Colour(u32);

/// One for each slot up to 63, and again for those after. Of the first eight, in this order, neighbours differ in lightness too, and the second eight are these,
/// darker. Each of the others is as far as it can be from all before it and from the colours below, by CIELAB's distance.
const HUES: [u32; 64] = [
    0x0072b2, 0xe69f00, 0x009e73, 0xcc79a7, 0x56b4e9, 0xd55e00, 0xf0e442, 0x882255, 0x00446a,
    0x8a5f00, 0x005e45, 0x7a4864, 0x336c8b, 0x7f3800, 0x908827, 0x511433, 0x0000ff, 0xff00dd,
    0x00dd11, 0x332299, 0xff0088, 0xffaa88, 0xbb88ff, 0x008800, 0xaa44ff, 0x99dd77, 0x55dddd,
    0xff6677, 0xaa2299, 0xccbbff, 0x1188ff, 0x334400, 0x990022, 0x88cc00, 0x0055ff, 0xaabb88,
    0x443377, 0x00dd77, 0xff77ee, 0xaa6655, 0x3300bb, 0xeebb66, 0x449999, 0x006622, 0xff4400,
    0x99aa00, 0xbb0055, 0xffaaff, 0x88ddaa, 0xbb1100, 0x7777cc, 0x553311, 0x669944, 0x9944cc,
    0xff7755, 0xddaabb, 0xee55aa, 0xaa8855, 0x9955aa, 0x667744, 0xcccc66, 0xdd8844, 0xee0055,
    0x661166,
];

/// What the core owns.
pub const CORE: Colour = Colour(0x3a3a3a);
/// What the host owns.
pub const HOST: Colour = Colour(0xdcdcdc);
/// What nobody owns.
pub const FREE: Colour = Colour(0xffffff);
/// What several VMs had, none of them more than half of it.
pub const SEVERAL: Colour = Colour(0x7d6b91);
/// The mark of a VM whose images were not approved.
pub const DEAD: Colour = Colour(0xff0033);
/// The mark of a refused call, as in the page for a browser.
pub const REFUSED: Colour = Colour(0xd4002a);
/// Words and marks.
pub const INK: Colour = Colour(0x222222);
/// Lesser words.
pub const FAINT: Colour = Colour(0x666666);
/// Edges and base lines.
pub const EDGE: Colour = Colour(0x999999);
/// The stretch of a life.
pub const LIFE: Colour = Colour(0xf0f0f0);

/// Moves the last byte of a number towards 255, by 0 to 100 hundredths of the way.
fn nearer_white(number: u32, percent: u32) -> u32
    ensures { result ≤ 255 }
{
    let part = number % 256;
    let more = (255 - part).saturating_mul(percent) / 100;
    part.saturating_add(more).min(255)
}

impl Colour {
    /// The colour of the VM in a slot, 0 to 1,023.
    pub fn of_vm(vm: u32) -> Colour
        ensures { result.0 ≡ slice_index_or HUES (vm % 64) result.0 }
    {
        Colour(HUES[vm as usize % HUES.len()])
    }

    /// The colour of what an owner owns.
    pub fn of_owner(owner: Owner) -> Colour {
        match owner {
            Owner::Core => CORE,
            Owner::Host => HOST,
            Owner::Free => FREE,
            Owner::Vm(vm) => Colour::of_vm(vm.index() as u32),
        }
    }

    /// Moves it towards white, by 0 to 100 hundredths of the way.
    pub fn paler(self, percent: u32) -> Colour {
        let red = nearer_white(self.0 / 65_536, percent);
        let green = nearer_white(self.0 / 256, percent);
        let blue = nearer_white(self.0, percent);
        Colour(65_536 * red + 256 * green + blue)
    }

    /// Whether white words are easier to read on it than dark ones.
    pub fn is_dark(self) -> bool {
        let (red, green, blue) = (self.0 / 65_536 % 256, self.0 / 256 % 256, self.0 % 256);
        299 * red + 587 * green + 114 * blue < 130_000
    }
}

/// As `#0072b2`.
impl fmt::Display for Colour {
    fn fmt<W: fmt::Write>(&self, f: &mut fmt::Formatter<W>) -> fmt::Result {
        let number = self.0;
        write!(f, "#{number:06x}")
    }
}
