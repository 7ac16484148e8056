ghost use Rattle.std.specs.Prelude.{◌≡◌, ◌≤◌, length};

use wire_sheet::Sheet;

mod printing;

/// A sheet as it was printed, and what was read of it.
#[derive(Clone, Copy)]
pub struct Printed {
    text: [u8; 47],
    len: usize,
    pub read: Sheet,
    ghost few: { len ≤ 47 },
    ghost whole: { length text ≡ 47 },
}
