// Where the label records begin.
ghost use Rattle.std.specs.Prelude.{◌≡◌, cond};

// The number of the record behind the edition's: "A profile of edition 2 begins with a record of kind 6".
pub fn first_entry(second: bool) -> usize
    ensures { result ≡ cond second 1 0 }
{
    usize::from(second)
}
