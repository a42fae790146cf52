// Writing at a place that a lent memory may lack.
ghost use Rattle.std.specs.Prelude.{◌≡◌, slice_set};

// Writes an item at a place; past the end nothing changes.
// Not by `get_mut`, whose contract leaves open what the slice holds afterwards.
pub(crate) fn put_at<T: Copy>(items: &mut [T], place: usize, item: T)
    ensures { items.new ≡ slice_set items.old place item }
{
    if place < items.len() {
        items[place] = item;
    }
}
