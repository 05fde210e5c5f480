// A job as it is written.
ghost use Rattle.std.specs.Prelude.{◌≡◌, ◌<◌, length};
ghost use Rattle.text.specs.RightLines.{rights_in};

use search::bounded_search::Limits;

// Left's text, the text that the right lines begin, how many of them there are, and the limits.
#[derive(Clone, Copy)]
pub struct Written<'a> {
    pub left: &'a [u8],
    pub lines: &'a [u8],
    pub rights: usize,
    pub limits: Limits,
    ghost some_rights: { 0 < rights },
    ghost counted: { length (rights_in lines.now rights) ≡ rights },
}
