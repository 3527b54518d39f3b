// Places, which count from 1.
ghost use Rattle.model.specs.Places.{AtPlace};

/// What stands at a place from 1; none where there is no such place.
pub fn at_place<T: Copy>(items: &[T], place: usize) -> Option<T>
    ensures { AtPlace items.now place result }
{
    let index = place.checked_sub(1)?;
    items.get(index).copied()
}
