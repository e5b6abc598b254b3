//! What has a number, and a list of such.
ghost use Rattle.std.specs.Prelude.{◌≡◌, ℕ, IsTrue};
ghost use Rattle.change_history.specs.History.{last_from, rising, records_from, records_at};

use hs_types::SnapId;

/// A record: its number is the id of a snapshot.
pub trait Numbered {
    /// The number, as definitions see it.
    ghost number_of: { Self → ℕ };

    fn number(&self) -> SnapId
        ensures { result.0 ≡ number_of self.now };
}

/// The number of the last record, or 0.
pub fn last_number<T: Numbered>(records: &[T]) -> SnapId
    ensures { result.0 ≡ last_from T.number_of 0 records.now }
{
    match records.last() {
        Some(last) => last.number(),
        None => SnapId(0),
    }
}

/// The records from the first one numbered at least `s` on. They are searched by halves.
fn records_from<T: Numbered>(records: &[T], s: SnapId) -> &[T]
    requires { IsTrue (rising T.number_of 0 records.now) }
    ensures { result.now ≡ records_from T.number_of s.0 records.now }
{
    let first = records.partition_point(|r| r.number().0 < s.0);
    let (_, rest) = records.split_at(first);
    rest
}

/// The records that tell a snapshot, the first of them first. 0 is no snapshot: none tells it. It takes no memory.
pub fn records_at<T: Numbered>(records: &[T], s: SnapId) -> &[T]
    requires { IsTrue (rising T.number_of 0 records.now) }
    ensures { result.now ≡ records_at T.number_of s.0 records.now }
{
    if s.0 == 0 {
        let (_, none) = records.split_at(records.len());
        none
    } else {
        records_from(records, s)
    }
}
