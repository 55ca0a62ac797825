// The entries of a job, as the calls that append them.
ghost use Rattle.std.specs.Prelude.{◌≡◌, ◌≤◌, map, length};
ghost use Rattle.job.specs.Appending.{appended};

use entries::call::Call;
use lists::list::List;

// The calls that append the entries.
pub(crate) fn appends(entries: &[u32]) -> List<Call, 64>
    requires { length entries.now ≤ 64 }
    ensures { result.items ≡ map appended entries.now }
{
    let mut calls = List::new(Call::Clear);
    for codes in entries {
        calls.push(Call::Append(*codes)).unwrap();
    }
    calls
}
