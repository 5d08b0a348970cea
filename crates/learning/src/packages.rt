// The packages of a PLT: service and identifier in one number, services rising, a repeated service's last.
ghost use Rattle.std.specs.Prelude.{◌≡◌, true, ℕ, ◌+◌, ◌-◌, ◌*◌, ◌/◌, ◌%◌, ◌≤◌, ◌<◌, ◌&&◌, eqb, List, [], ◌++◌, length, take, drop};
ghost use Rattle.meaning.specs.Tables.{plt};
ghost use Rattle.meaning.specs.Learn.{insert_package};
ghost use Rattle.meaning.specs.Soundness.{rising, firsts};
ghost use Rattle.learning.specs.Kept.{pairs_in, Pairs, KeptPackages};
ghost use Rattle.learning.specs.News.{also, unlisted_news, lists_service, same_numbers};
ghost use Rattle.learning.specs.Learnt.{Rising, SlotIs, taken, PackagesAre, PltLearnt};

use crate::pairs::Pair;
use crate::{Extent, News, changed, with_news};
use octets::wide;
use tables::packages::{Package, package_at};

// The packages of a PLT's body as far as they are read, in as many slots; and whether those are not all.
// Stays: an array and a count, as the record keeps them, since there is no heap (fixed memory), so no Vec.
#[derive(Clone, Copy)]
pub struct Services {
    pub packages: [u32; 255],
    pub count: usize,
    pub unlisted: bool,
}

impl Services {
    // The slot in which the package of a service is, or in which it would go. In most PLTs services rise: then it is the one behind the last,
    // and nothing is searched.
    fn slot_for(&self, service: u16) -> Result<usize, usize>
        requires { (self.now.count ≤ 255) × (rising (firsts (pairs_in self.now.count self.now.packages)) ≡ true) }
        ensures { SlotIs service self.now.count self.now.packages result }
    {
        let n = self.count;
        if n == 0 || Pair::from(self.packages[n - 1]).first < service {
            return Err(n);
        }
        self.packages[..n].binary_search_by_key(&service, |p| Pair::from(*p).first)
    }

    // A package in its slot.
    fn add(&mut self, p: Pair)
        requires { (self.old.count < 255) × ((ps : List (ℕ × ℕ)) × Rising ps self.old.count self.old.packages) }
        ensures { ((ps : List (ℕ × ℕ)) → Rising ps self.old.count self.old.packages → Rising (insert_package p.first p.second ps) self.new.count self.new.packages) × (self.new.count ≤ self.old.count + 1) }
    {
        match self.slot_for(p.first) {
            Ok(at) => self.packages[at] = p.into(),
            Err(at) => {
                self.packages.copy_within(at..self.count, at + 1);
                self.packages[at] = p.into();
                self.count += 1;
            }
        }
    }

    // One more package, if it has a service and an identifier.
    fn take(&mut self, found: Package)
        requires { (self.old.count < 255) × ((ps : List (ℕ × ℕ)) × Rising ps self.old.count self.old.packages) }
        ensures { ((ps : List (ℕ × ℕ)) → Rising ps self.old.count self.old.packages → Rising (taken found.name found.carrier ps) self.new.count self.new.packages) × (self.new.count ≤ self.old.count + 1) }
    {
        if let (Some(first), Some(second)) = (found.name, found.carrier) {
            self.add(Pair { first, second });
        }
    }
}

// The packages of a PLT's body, in services that are none yet: lent, since what is handed back is copied.
fn packages_of(b: &[u8], services: &mut Services) -> Option<()>
    requires { Pairs 255 [] services.old.count services.old.packages }
    ensures { PackagesAre (plt b.now) services.new result }
{
    let all = wide(*b.first()?);
    let mut from = 1;
    for _ in 0..all {
        let package = package_at(b, from)?;
        from = package.end;
        services.take(package);
    }
    services.unlisted = services.count != all;
    Some(())
}

// Whether these packages are what the latest PLT said.
fn is_known(e: Extent, services: &Services, packages: &[u32; 255]) -> bool
    requires { services.now.count ≤ 255 }
    ensures { result ≡ (e.seen && (eqb e.package_count services.now.count && same_numbers (take services.now.count services.now.packages) (take services.now.count packages.now))) }
{
    let n = services.count;
    e.seen && e.package_count == n && services.packages[..n] == packages[..n]
}

// What is new, and whether a package stands there that is not listed.
fn with_unlisted(n: News, there: bool) -> News
    ensures { result ≡ also n (unlisted_news there) }
{
    News {
        unlisted: n.unlisted || there,
        ..n
    }
}

// A PLT's body: all its packages, if it can be read.
pub fn plt(b: &[u8], e: Extent, packages: &mut [u32; 255]) -> Extent
    requires { (ps : List (ℕ × ℕ)) × KeptPackages ps e.package_count packages.old }
    ensures { (ps : List (ℕ × ℕ)) → KeptPackages ps e.package_count packages.old → PltLearnt (plt b.now) ps e result packages.new }
{
    let mut services = Services {
        packages: [0; 255],
        count: 0,
        unlisted: false,
    };
    let Some(()) = packages_of(b, &mut services) else {
        return e;
    };
    let known = with_news(e, with_unlisted(e.news, services.unlisted));
    if is_known(known, &services, packages) {
        return known;
    }
    *packages = services.packages;
    Extent {
        seen: true,
        package_count: services.count,
        news: changed(known.news),
        ..known
    }
}

// Whether one of the first `n` packages is of the service.
pub fn lists_service(packages: &[u32; 255], n: usize, service: u16) -> bool
    requires { n ≤ 255 }
    ensures { result ≡ lists_service service (pairs_in n packages.now) }
{
    packages[..n]
        .iter()
        .any(|p| Pair::from(*p).first == service)
}
