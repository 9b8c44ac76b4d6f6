// Ranges that one call can take.
ghost use Rattle.std.specs.Prelude.{◌≡◌, sum_by, IfSome};
ghost use Rattle.page.specs.Geometry.{AreInOrder};

/// How many bytes the ranges have together. `None` if one call can't take them: they overlap,
/// aren't in order, or are too long together.
pub fn len_together(ranges: &[(u64, usize)]) -> Option<usize>
    ensures in_order { IfSome result (λ len. AreInOrder ranges.now) }
    ensures len { IfSome result (λ len. len ≡ sum_by (λ range. range.1) ranges.now) }
{
    let mut total = 0usize;
    let mut end = 0u128;
    for &(offset, len) in ranges {
        let begin = u128::from(offset);
        if begin < end {
            return None;
        }
        let Some(more) = total.checked_add(len) else {
            return None;
        };
        total = more;
        end = begin + len as u128;
    }
    Some(total)
}
