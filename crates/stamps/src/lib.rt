// Stamps, their order, and the greatest of the pairs of a stamp and a value. Document 01, "Sets and sequences" and "Delivery at a relay".
#![tactic(auto)]

ghost use Rattle.std.specs.Prelude.{◌≡◌};
ghost use Rattle.stamps.specs.Stamp.{compared_of, greater_of, same_of, greatest_of, fresh_pair};

// "A stamp is (count 0..65,535, desk 0..3), ordered by count, then desk": the derived order goes by the fields in this order.
#[derive(Clone, Copy, PartialEq, Eq, PartialOrd, Ord, Default)]
pub struct Stamp {
    pub count: u16,
    pub desk: u8,
}

#[derive(Clone, Copy, PartialEq, Eq, Default)]
pub struct Pair {
    pub stamp: Stamp,
    pub value: u32,
}

// "Comparing two stamps answers minus one, zero or one." (A number and no Ordering: document 01 asks for "a signed answer with its exact sign meaning".)
pub fn compare(a: Stamp, b: Stamp) -> i8
    ensures { result ≡ compared_of a b }
{
    a.cmp(&b) as i8
}

// As in "Put stores if its stamp is greater".
pub fn greater(a: Stamp, b: Stamp) -> bool
    ensures { result ≡ greater_of a b }
{
    a > b
}

// As in "if all stamps agreed".
pub fn same(a: Stamp, b: Stamp) -> bool
    ensures { result ≡ same_of a b }
{
    a == b
}

// "Wherever the greatest stamp is kept, of equal stamps the pair already held stays." (Document 01 asks for the signed answer in the relay's store.)
pub fn greatest(held: Pair, new: Pair) -> Pair
    ensures { result ≡ greatest_of held new }
{
    let order = compare(new.stamp, held.stamp);
    if order == 1 { new } else { held }
}

// "Fresh record: stamp (0,0), value 0."
pub fn fresh() -> Pair
    ensures { result ≡ fresh_pair }
{
    Pair::default()
}
