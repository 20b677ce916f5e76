// Elements of a lent slice that give way to others; what stands behind them moves up or down.
ghost use Rattle.std.specs.Prelude.{◌≡◌, ◌+◌, ◌-◌, ◌≤◌, length, replicate};
ghost use Rattle.std.specs.List.{copy_within};
ghost use Rattle.store.specs.Splices.{replaced, replaced_last, FitsSplice};

use std::ops::Range;

// `fill` asks of a type parameter that its clone can't fail, which `Copy` does not say.
fn wipe<T: Copy>(xs: &mut [T], blank: T)
    ensures { xs.new ≡ replicate (length xs.old) blank }
{
    for x in xs.iter_mut() {
        *x = blank;
    }
}

// Most changes of an entry move nothing, and a large table would be copied over itself.
fn shift<T: Copy>(xs: &mut [T], from: Range<usize>, to: usize)
    requires { (from.start ≤ from.end) × ((from.end ≤ length xs.old) × (to + (from.end - from.start) ≤ length xs.old)) }
    ensures { xs.new ≡ copy_within xs.old from.start from.end to }
{
    if to != from.start {
        xs.copy_within(from, to);
    }
}

// What is `gone` gives way to the new elements; those behind it, up to `end`, follow, and what is freed is blank.
// No `T::default()`: the contract would have to speak of any value of which that type's law of defaults holds.
pub(crate) fn splice<T: Copy>(xs: &mut [T], gone: Range<usize>, end: usize, new: &[T], blank: T)
    requires { FitsSplice (length xs.old) gone.start gone.end end (length new.now) }
    ensures { xs.new ≡ replaced blank xs.old gone.start (gone.end - gone.start) (end - gone.end) new.now }
{
    let behind = gone.start + new.len();
    let left = behind + (end - gone.end);
    shift(xs, gone.end..end, behind);
    wipe(&mut xs[left..left.max(end)], blank);
    xs[gone.start..behind].copy_from_slice(new);
}

// What is `gone` goes, those behind it, up to `end`, follow, and the new elements stand behind them; what is freed is blank.
pub(crate) fn put_last<T: Copy>(xs: &mut [T], gone: Range<usize>, end: usize, new: &[T], blank: T)
    requires { FitsSplice (length xs.old) gone.start gone.end end (length new.now) }
    ensures { xs.new ≡ replaced_last blank xs.old gone.start (gone.end - gone.start) (end - gone.end) new.now }
{
    let behind = gone.start + (end - gone.end);
    let last = behind + new.len();
    shift(xs, gone.end..end, gone.start);
    wipe(&mut xs[last..last.max(end)], blank);
    xs[behind..last].copy_from_slice(new);
}
