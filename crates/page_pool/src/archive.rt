ghost use Rattle.std.specs.Prelude.{◌≡◌, ◌≢◌, ◌<◌, ◌^◌, ℕ, List, Some, None, IsTrue, true, false, IfOk, IfErr, OnOk, OnErr, IfSome, IfNone, IsSomeAnd, nat_lt, ◌⊎◌};
ghost use Rattle.std.specs.FinMap as map;
ghost use Rattle.std.specs.FinSet as set;
ghost use Rattle.std.specs.Option.{option_map, option_map_or, option_and_then};
ghost use Rattle.page_pool.specs.Archive.{new_archive, newest_images, IsArchive, IsFrozen, StandsWritten};
ghost use Rattle.page_pool.specs.Archive.{WritesImage, LeavesPage, ReadsImage, Advances, Releases};
ghost use Rattle.page_pool.specs.InsideArchive.{StandsStored, StoresAt, ReadsPlace};
ghost use Rattle.page_pool.specs.Causes.{IsNoDamage, faults_at};

use crate::digests::Digests;
use crate::images::Images;
use crate::page::{Page, read_fresh};
use crate::{Disk, PageFault};
use sand_base::NoMemory;
use std::alloc::Global;
use std::marker::Model;

/// A disk of numbered pages with stamps: each image of a page lies at a place of its own, with its digest.
#[derive(Drop)]
pub(crate) struct Archive<D: Disk> {
    disk: D,
    digests: Digests,
    images: Images,
    alloc: Global,
}

impl<D: Disk> Model for Archive<D> {
    ghost use Rattle.page_pool.specs.Archive.{ArchiveState};
    ghost use Rattle.page_pool.specs.InsideArchive.{archive_of, IsArchived};
    ghost use Rattle.page_pool.specs.Codes.{archive_code};

    ghost Value = { ArchiveState };

    ghost coded = { archive_code };

    ghost view = { λ a. archive_of (D.seen a.disk) a.digests a.images };

    ghost invariant = { λ a. IsArchived (D.seen a.disk) a.digests a.images };
}

impl<D: Disk> Archive<D> {
    // An archive with no image over the disk, which it starts with the name. After a refusal the disk comes back.
    pub(crate) fn start(
        alloc: Global,
        mut disk: D,
        name: Option<&str>,
    ) -> Result<Archive<D>, (PageFault, D)>
        ensures begun { IfOk result (λ archive. archive ≡ new_archive archive.disk) }
        ensures counted { IfOk result (λ archive. archive.disk.faults ≡ (D.seen disk).faults) }
        ensures refused { IfErr result (λ e. (D.seen e.1).faults ≡ faults_at (D.seen disk).faults e.0) }
        ensures undamaged { IfErr result (λ e. IsNoDamage e.0) }
        ensures whole { IfOk result IsArchive }
    {
        if let Err(why) = disk.start(name) {
            return Err((PageFault::from(why), disk));
        }
        Ok(Archive {
            disk,
            digests: Digests::new(alloc),
            images: Images::new(alloc),
            alloc,
        })
    }

    // The disk.
    pub(crate) fn into_disk(self) -> D
        ensures { D.seen result ≡ self.disk }
    {
        let Archive {
            disk,
            digests: _,
            images: _,
            alloc: _,
        } = self;
        disk
    }

    // How many commands began so far. (Its contract says what holds of every archive.)
    pub(crate) fn begun(&self) -> u64
        ensures begun { result ≡ self.now.begun }
        ensures whole { IsArchive self.now }
    {
        self.images.begun()
    }

    // How many had begun at the last change of an image.
    #[inline]
    pub(crate) fn changed(&self) -> u64
        ensures { result ≡ self.now.changed }
    {
        self.images.changed()
    }

    // Where the newest image of page `n` lies.
    #[inline]
    pub(crate) fn place(&self, n: u64) -> Option<u64>
        ensures { result ≡ map.get self.now.places n }
    {
        self.images.newest_place(n)
    }

    // How many commands had begun as the stamp was taken.
    pub(crate) fn stamp(&self, slot: u64) -> Option<u64>
        ensures { result ≡ option_map (λ f. f.at) (map.get self.now.stamps slot) }
    {
        self.images.stamp(slot)
    }

    // Where the image lies that the held stamp sees as page `n`.
    pub(crate) fn seen_place(&self, slot: u64, n: u64) -> Option<u64>
        ensures { result ≡ option_and_then (λ f. map.get f.places n) (map.get self.now.stamps slot) }
    {
        match self.images.stamp(slot) {
            Some(at) => self.images.seen_place(at, n),
            None => None,
        }
    }

    // Whether a stamp of an earlier command is in the slot.
    pub(crate) fn is_older(&self, slot: u64) -> bool
        ensures { result ≡ option_map_or (λ f. nat_lt f.at self.now.begun) (map.get self.now.stamps slot) false }
    {
        match self.stamp(slot) {
            Some(at) => at < self.begun(),
            None => false,
        }
    }

    // Where the image lies that the held stamp sees as page `n`, where the stamp is of an earlier command.
    pub(crate) fn older_place(&self, slot: u64, n: u64) -> Option<u64>
        ensures found { IfSome result (λ place. IsSomeAnd (map.get self.now.stamps slot) (λ f. (f.at < self.now.begun) × (map.get f.places n ≡ Some place))) }
        ensures none { IfNone result (IfSome (map.get self.now.stamps slot) (λ f. f.at < self.now.begun → map.get f.places n ≡ None)) }
    {
        match self.stamp(slot) {
            Some(at) if at < self.begun() => self.seen_place(slot, n),
            _ => None,
        }
    }

    // Whether the newest image of page `n` lies at this place.
    pub(crate) fn lies_at(&self, n: u64, place: u64) -> bool
        ensures there { result ≡ true → map.get self.now.places n ≡ Some place }
        ensures elsewhere { result ≡ false → map.get self.now.places n ≢ Some place }
    {
        match self.place(n) {
            Some(newest) => newest == place,
            None => false,
        }
    }

    // Writes page `n` to a place where nothing is spoiled that anyone sees, and answers the place.
    pub(crate) fn write(&mut self, n: u64, page: &Page) -> Result<u64, PageFault>
        ensures writes { WritesImage self.old self.new n page.now result }
        ensures whole { IsArchive self.new }
    {
        let place = self.images.target(n)?;
        store(&mut self.disk, &mut self.digests, place, page)?;
        self.images.settle(n, place)?;
        Ok(place)
    }

    // Page `n` is no more. After a refusal all is as it was.
    pub(crate) fn leave(&mut self, n: u64) -> Result<(), NoMemory>
        ensures left { OnOk result (LeavesPage self.old self.new n) }
        ensures unchanged { OnErr result (self.new ≡ self.old) }
        ensures whole { IsArchive self.new }
    {
        self.images.leave(n)
    }

    // The newest image of page `n` as the disk gives it now, if it has the kept digest.
    pub(crate) fn read(&mut self, n: u64) -> Result<Page, PageFault>
        requires { StandsWritten self.old.disk.told self.old.pages self.old.kept n }
        ensures read { ReadsImage self.old self.new self.old.pages self.old.kept n result }
        ensures whole { IsArchive self.new }
    {
        match self.images.newest_place(n) {
            Some(place) => read_image(self.alloc, &mut self.disk, &self.digests, n, place),
            None => Err(PageFault::Memory),
        }
    }

    // The image that the held stamp of an earlier command sees as page `n`, as the disk gives it now, if it has the
    // kept digest.
    pub(crate) fn read_seen(&mut self, slot: u64, n: u64) -> Result<Page, PageFault>
        requires { IfSome (map.get self.old.stamps slot) (λ f. f.at < self.old.begun) }
        ensures read { IfSome (map.get self.old.stamps slot) (λ f. ReadsImage self.old self.new f.pages f.kept n result) }
        ensures whole { IsArchive self.new }
    {
        let Some(at) = self.images.stamp(slot) else {
            return Err(PageFault::Memory);
        };
        match self.images.seen_place(at, n) {
            Some(place) => read_image(self.alloc, &mut self.disk, &self.digests, n, place),
            None => Err(PageFault::Memory),
        }
    }

    // Whether a held stamp of an earlier command sees the newest image of page `n`.
    pub(crate) fn is_shared(&self, n: u64) -> bool
        ensures { result ≡ set.contains self.now.shared n }
    {
        self.images.is_home_seen(n)
    }

    // How many pages have a newest image.
    pub(crate) fn count(&self) -> usize
        ensures count { result ≡ map.len self.now.places }
        ensures small { result < 2 ^ 63 }
    {
        self.images.count()
    }

    // How many replaced images are kept for stamps.
    pub(crate) fn seen_count(&self) -> usize
        ensures { result ≡ self.now.seen }
    {
        self.images.seen_count()
    }

    // Holds a stamp, which sees the newest images until one more command begins, and then for good.
    pub(crate) fn keep(&mut self) -> Result<u64, NoMemory>
        ensures free { IfOk result (λ slot. map.get self.old.stamps slot ≡ None) }
        ensures kept { IfOk result (λ slot. self.new ≡ record self.old { stamps = map.insert self.old.stamps slot (newest_images self.old) }) }
        ensures unchanged { OnErr result (self.new ≡ self.old) }
        ensures whole { IsArchive self.new }
    {
        self.images.keep()
    }

    // The stamp in the slot is held no more.
    pub(crate) fn release(&mut self, slot: u64)
        ensures released { Releases self.old self.new slot }
        ensures whole { IsArchive self.new }
    {
        self.images.release(slot)
    }

    // One more command begins, where each newest image stands on the disk. After a refusal all is as it was.
    pub(crate) fn advance(&mut self) -> Result<(), NoMemory>
        requires { (n : ℕ) → StandsWritten self.old.disk.told self.old.pages self.old.kept n }
        ensures begun { OnOk result (Advances self.old self.new) }
        ensures unchanged { OnErr result (self.new ≡ self.old) }
        ensures whole { IsArchive self.new }
    {
        self.images.advance()
    }
}

// Stores the page at the place, with its digest.
fn store<D: Disk>(
    disk: &mut D,
    digests: &mut Digests,
    place: u64,
    page: &Page,
) -> Result<(), PageFault>
    ensures { StoresAt (D.seen disk.old) (D.seen disk.new) digests.old digests.new place page.now result }
{
    disk.write_page(place, page.bytes())?;
    digests.insert(place, page.digest())?;
    Ok(())
}

// The image of page `n` at this place, as the disk gives it now, if it has the kept digest.
fn read_image<D: Disk>(
    alloc: Global,
    disk: &mut D,
    digests: &Digests,
    n: u64,
    place: u64,
) -> Result<Page, PageFault>
    requires { StandsStored (D.seen disk.old) digests.now place }
    ensures { ReadsPlace (D.seen disk.old) (D.seen disk.new) digests.now n place result }
{
    let Some(kept) = digests.get(place) else {
        return Err(PageFault::Memory);
    };
    let page = read_fresh(alloc, disk, place)?;
    let read = page.digest();
    if read != *kept {
        return Err(PageFault::Damaged {
            page: n,
            kept: *kept,
            read,
        });
    }
    Ok(page)
}
