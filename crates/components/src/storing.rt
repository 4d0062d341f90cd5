// The finished records go into the row that the caller lends.
ghost use Rattle.std.specs.Prelude.{◌≡◌, ◌++◌, ◌≤◌, length, drop};

use touching::Component;

// Stores the records at the front of the row.
pub fn store(records: &[Component], row: &mut [Component])
    requires { length records.now ≤ length row.old }
    ensures { row.new ≡ records.now ++ drop (length records.now) row.old }
{
    row[..records.len()].copy_from_slice(records);
}
