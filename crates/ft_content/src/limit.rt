//! Which rows of an answer are given.
ghost use Rattle.std.specs.Prelude.{◌≡◌};
ghost use Rattle.ft_content.specs.Answer as answer;

/// The rows without the first `offset`, and at most `limit` of those.
pub fn cut<T>(rows: &[T], limit: Option<u64>, offset: u64) -> &[T]
    ensures { result.now ≡ answer.cut limit offset rows.now }
{
    let rest = &rows[offset.min(rows.len() as u64) as usize..];
    match limit {
        Some(limit) => &rest[..limit.min(rest.len() as u64) as usize],
        None => rest,
    }
}
