// The words not yet run.
ghost use Rattle.std.specs.Prelude.{◌≡◌, ◌+◌, ◌*◌, min, length, drop};

// The end part of the caller's own list from the count on, in the same block of memory; empty where the count is past the end.
pub fn rest(list: &[u32], count: usize) -> &[u32]
    ensures { (result.now ≡ drop count list.now) × (result.ref_ptr.0 ≡ list.entry.ref_ptr.0) × (result.ref_ptr.1 ≡ list.entry.ref_ptr.1 + min count (length list.now) * 4) }
{
    let end = list.len();
    if count <= end {
        return &list[count..];
    }
    &list[end..]
}
