// The packages of a PLT: where one ends, its service, its packet identifier.
ghost use Rattle.std.specs.Prelude.{◌≡◌, ◌+◌, ◌-◌, ◌*◌, ◌%◌, ◌≤◌, ◌<◌, length, take, drop, get_or};
ghost use Rattle.meaning.specs.Tables.{service_of};
ghost use Rattle.tables.specs.Answers.{in_code, PackageIs};

use crate::fields::counted_end;
use crate::locations::location_at;
use octets::id16;

// A package: where it ends, the service that a name of two bytes is, its identifier.
#[derive(Clone, Copy)]
pub struct Package {
    pub end: usize,
    pub name: Option<u16>,
    pub carrier: Option<u16>,
}

// The name at `at`, behind its length byte, where it is a service.
fn name_at(s: &[u8], at: usize, end: usize) -> Option<u16>
    requires { (at < end) × (end ≤ length s.now) }
    ensures { result ≡ in_code (service_of (take (end - at - 1) (drop (at + 1) s.now))) }
{
    if end != at + 3 {
        return None;
    }
    Some(id16(s, at + 1))
}

// The package at `at`.
pub fn package_at(s: &[u8], at: usize) -> Option<Package>
    ensures { PackageIs s.now at result }
{
    let name_end = counted_end(s, at)?;
    let located = location_at(s, name_end)?;
    Some(Package {
        end: located.end,
        name: name_at(s, at, name_end),
        carrier: located.carrier,
    })
}
