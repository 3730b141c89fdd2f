// Where a tuple lies: the place is page * 2^16 + slot.
ghost use Rattle.std.specs.Prelude.{◌≡◌, ◌+◌, ◌*◌, IfSome};
ghost use Rattle.tuple_file.specs.File.{page_of, slot_of};

// The place of a slot of a page.
pub fn place_of(page: u64, slot: u16) -> u128
    ensures { result ≡ page * 65536 + slot }
{
    u128::from(page) * 65_536 + u128::from(slot)
}

// The page and the slot of a place, where it is one.
pub fn spot_of(place: u128) -> Option<(u64, u16)>
    ensures page { IfSome result (λ spot. spot.0 ≡ page_of place) }
    ensures slot { IfSome result (λ spot. spot.1 ≡ slot_of place) }
{
    let Ok(page) = u64::try_from(place / 65_536) else {
        return None;
    };
    Some((page, (place % 65_536) as u16))
}
