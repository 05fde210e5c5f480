// Dirty buffers: filled before a call, and looked at after it.
ghost use Rattle.std.specs.Prelude.{◌≡◌, ◌+◌, ◌%◌, ◌^◌, length, drop, IsTrue, ◌↔◌};
ghost use Rattle.replay.specs.Dirt.{dirt, due};

// What a dirty buffer holds, each another than the one before it.
pub trait Dirty: Copy {
    ghost following: { Self → Self };

    // The one behind this in a dirty buffer.
    fn following(self) -> Self
        ensures { result ≡ following self };
}

impl Dirty for u8 {
    ghost following = { λ x. (x + 37) % 2 ^ 8 };

    fn following(self) -> u8 {
        self.wrapping_add(37)
    }
}

impl Dirty for u32 {
    ghost following = { λ x. (x + 2654435769) % 2 ^ 32 };

    fn following(self) -> u32 {
        self.wrapping_add(2654435769)
    }
}

// Fills a buffer from its first number on.
pub fn fill<T: Dirty>(buffer: &mut [T], first: T)
    ensures { buffer.new ≡ dirt T.following first (length buffer.old) }
{
    let mut next = first;
    for slot in buffer.iter_mut() {
        *slot = next;
        next = next.following();
    }
}

// Whether the text is at the front of the output, and the bytes behind it are those that were filled in. By hand: what is
// due behind the text is known only by going through it.
pub fn is_due(output: &[u8], text: &[u8], first: u8) -> bool
    ensures { IsTrue result ↔ (output.now ≡ due text.now first (length output.now)) }
{
    let mut filled = first;
    for (i, byte) in output.iter().enumerate() {
        let due = text.get(i).copied().unwrap_or(filled);
        if *byte != due {
            return false;
        }
        filled = filled.following();
    }
    text.len() <= output.len()
}

// Whether both have the same numbers from a position on.
pub fn is_same_from(a: &[u32], b: &[u32], from: usize) -> bool
    ensures { IsTrue result ↔ (drop from a.now ≡ drop from b.now) }
{
    a[from.min(a.len())..] == b[from.min(b.len())..]
}
