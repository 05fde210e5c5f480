// An equation of two runs in the making.
ghost use Rattle.std.specs.Prelude.{◌≡◌, ◌≤◌, length, take};
ghost use Rattle.words.specs.Candidate.{room_of, nothing, Stores};

use terms::copy::overwrite;

// A run at the front of a buffer.
fn put_front(out: &mut [u32], run: &[u32])
    requires { length run.now ≤ length out.old }
    ensures { take (length run.now) out.new ≡ run.now }
{
    overwrite(&mut out[..run.len()], run);
}

// The two runs stand at the fronts of two lent buffers of any lengths. Each side has room for as many numbers as the shorter one has.
// Each buffer has a lifetime of its own: of two that share one, no clause could tell a caller what they hold behind the call.
#[derive(Drop)]
pub struct Equation<'a, 'b> {
    left: &'a mut [u32],
    right: &'b mut [u32],
    left_length: usize,
    right_length: usize,
    ghost left_fits: { left_length ≤ room_of left.now right.now },
    ghost right_fits: { right_length ≤ room_of left.now right.now },
}

impl<'a, 'b> Equation<'a, 'b> {
    ghost use Rattle.words.specs.Making.{made, lent};

    // With nothing on either side.
    pub fn new(left: &'a mut [u32], right: &'b mut [u32]) -> Self
        ensures empty { made result ≡ nothing (room_of left.old right.old) }
        ensures left { (lent result).left ≡ left.entry.ghost_name }
        ensures right { (lent result).right ≡ right.entry.ghost_name }
    {
        Equation {
            left,
            right,
            left_length: 0,
            right_length: 0,
        }
    }

    pub fn left(&self) -> &[u32]
        ensures is { result.now ≡ (made self.now).sides.left }
        ensures fits { length result.now ≤ (made self.now).room }
    {
        &self.left[..self.left_length]
    }

    pub fn right(&self) -> &[u32]
        ensures is { result.now ≡ (made self.now).sides.right }
        ensures fits { length result.now ≤ (made self.now).room }
    {
        &self.right[..self.right_length]
    }

    // How many numbers each side has room for.
    pub fn room(&self) -> usize
        ensures { result ≡ (made self.now).room }
    {
        self.left.len().min(self.right.len())
    }

    // Nothing on either side again.
    pub fn clear(&mut self)
        ensures empty { made self.new ≡ nothing (made self.old).room }
        ensures lent { lent self.new ≡ lent self.old }
    {
        self.left_length = 0;
        self.right_length = 0;
    }

    // Two runs stored as the sides; nothing where there is no room.
    pub fn store(&mut self, s: &[u32], t: &[u32])
        ensures stored { Stores s.now t.now (made self.old).room (made self.new).sides }
        ensures lent { lent self.new ≡ lent self.old }
    {
        let room = self.room();
        if room < s.len() || room < t.len() {
            self.clear();
            return;
        }
        put_front(self.left, s);
        put_front(self.right, t);
        self.left_length = s.len();
        self.right_length = t.len();
    }
}
