// Lists copied.
ghost use Rattle.std.specs.Prelude.{◌≡◌, length};

// Items written over as many others. By a loop: the library's `copy_from_slice` would have a host without the C library bring `memmove` too.
pub fn overwrite<T: Copy>(out: &mut [T], items: &[T])
    requires { length out.old ≡ length items.now }
    ensures { out.new ≡ items.now }
{
    for i in 0..out.len() {
        out[i] = items[i];
    }
}
