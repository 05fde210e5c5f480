// How two runs differ: at which number first, if at all.
ghost use Rattle.std.specs.Prelude.{◌≡◌, true};
ghost use Rattle.terms.specs.Differ.{Agree};
ghost use Rattle.terms.specs.Promises.{Differs};

// Whether four numbers surely agree with four others, told without a branch between them.
fn four_agree(p: &[u32; 4], q: &[u32; 4]) -> bool
    ensures { result ≡ true → p.now ≡ q.now }
{
    (p[0] == q[0]) & (p[1] == q[1]) & (p[2] == q[2]) & (p[3] == q[3])
}

// So many numbers at the front agree, a multiple of four.
fn fours_agree(a: &[u32], b: &[u32]) -> usize
    ensures { Agree a.now b.now result }
{
    let (s, _) = a.as_chunks::<4>();
    let (t, _) = b.as_chunks::<4>();
    let both = s.len().min(t.len());
    for i in 0..both {
        if !four_agree(&s[i], &t[i]) {
            return 4 * i;
        }
    }
    4 * both
}

// The place of the first number that differs, if any does, where so many at the front agree.
// A list that is a beginning of the other, as no run is, differs from it at its end.
fn difference_from(a: &[u32], b: &[u32], from: usize) -> Option<usize>
    requires { Agree a.now b.now from }
    ensures { Differs a.now b.now result }
{
    let both = a.len().min(b.len());
    for i in from..both {
        if a[i] != b[i] {
            return Some(i);
        }
    }
    if a.len() == b.len() {
        return None;
    }
    Some(both)
}

// The place of the first number that differs, if any does.
pub fn first_difference(a: &[u32], b: &[u32]) -> Option<usize>
    ensures { Differs a.now b.now result }
{
    difference_from(a, b, 0)
}

// The same for runs that are nearly always the same: fours are passed over while they agree, in half the time. Where runs differ soon, as they do
// when they are put in order, that takes longer.
pub fn difference_by_fours(a: &[u32], b: &[u32]) -> Option<usize>
    ensures { Differs a.now b.now result }
{
    difference_from(a, b, fours_agree(a, b))
}
