// Ends written where there is room for them, and counted in any case.
ghost use Rattle.std.specs.Prelude.{◌≡◌, ◌+◌, ◌%◌, ◌^◌, length, slice_set};
ghost use Rattle.std.proofs.lemmas.List.Edits.{sets};
ghost use Rattle.model.specs.Models.Run.{noted};

// A place stored, if what was lent reaches so far.
fn put(places: &mut [u32], at: usize, place: u32)
    ensures { places.new ≡ slice_set places.old at place }
{
    if at < places.len() {
        places[at] = place;
    }
}

// A place that may be an end: the new total.
pub fn note(places: &mut [u32], total: usize, place: u32, hit: bool) -> usize
    ensures counted { result ≡ (total + length (noted hit place)) % 2 ^ 64 }
    ensures written { places.new ≡ sets places.old total (noted hit place) }
{
    if hit {
        put(places, total, place);
        return total.wrapping_add(1);
    }
    total
}
