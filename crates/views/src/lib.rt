// Document 01, "Sets and sequences": views, and the sequences of views that a generator keeps.
#![tactic(auto)]

ghost use Rattle.std.specs.Prelude.{◌≡◌, ◌≤◌, [], ◌∷◌, ◌++◌, length, get_or, fold, reverse, leb, ◌<◌, IfSome};
ghost use Rattle.std.specs.List.{position};
ghost use Rattle.std.specs.Int.Bits.{bit_or};
ghost use Rattle.views.specs.View.{members_of, member_of, quorum_of, reaches_of, within_of, inside_of, clash_of};
ghost use Rattle.views.specs.Chain.{some, has_of, lacks_of, conflict_of, same_of, least_of, most_of, plus_of, union_of, heard_of, beyond_of, above_of};
ghost use Rattle.views.specs.Row.{views_of, row_of};

// ---- how a row of views grows, for the functions below; its unused entries are zero and stay so

// One view more, at the end; a full row stays as it is.
fn push(q: Sequence, v: u16) -> Sequence
    requires { q ≡ row_of (views_of q) }
    ensures { result ≡ row_of (views_of q ++ (v ∷ [])) }
{
    let mut r = q;
    if r.len < VIEWS {
        r.views[r.len] = v;
        r.len += 1;
    }
    r
}

// The views of r, and then these.
fn rest(r: Sequence, views: &[u16]) -> Sequence
    requires { r ≡ row_of (views_of r) }
    ensures { result ≡ row_of (views_of r ++ views.now) }
{
    let mut a = r;
    for v in views {
        a = push(a, *v);
    }
    a
}

// ---- views

// The relays that joined and have not left, one bit each.
pub fn members(v: u16) -> u8
    ensures { result ≡ members_of v }
{
    let [joined, left] = v.to_le_bytes();
    joined & !left
}

// Relay s is one of them; there is no relay above 7.
pub fn is_member(v: u16, s: u8) -> bool
    ensures { result ≡ member_of v s }
{
    s < 8 && (members(v) >> s) % 2 == 1
}

// Half the member count, rounded down, plus 1.
pub fn quorum(v: u16) -> u32
    ensures { result ≡ quorum_of v }
{
    members(v).count_ones() / 2 + 1
}

// The members of v among `who` are a quorum of it.
pub fn reaches(v: u16, who: u8) -> bool
    ensures { result ≡ reaches_of v who }
{
    quorum(v) <= (who & members(v)).count_ones()
}

// Every update of a is in b.
pub fn within(a: u16, b: u16) -> bool
    ensures { result ≡ within_of a b }
{
    a & b == a
}

// Every update of a is in b, and they differ.
pub fn inside(a: u16, b: u16) -> bool
    ensures { result ≡ inside_of a b }
{
    within(a, b) && a != b
}

// The two differ and neither includes the other; of equal views each includes the other.
pub fn clash(a: u16, b: u16) -> bool
    ensures { result ≡ clash_of a b }
{
    !within(a, b) && !within(b, a)
}

// The updates of both.
pub fn join(a: u16, b: u16) -> u16
    ensures { result ≡ bit_or a b }
{
    a | b
}

// ---- sequences

// "it has at most 15"
pub const VIEWS: usize = 15;

// A row of views, innermost first; the entries from len on are unused. (Fixed room with a length beside it: nothing allocates, and document 01 asks for
// "a row of view numbers with a length".)
#[derive(Clone, Copy)]
pub struct Sequence {
    pub views: [u16; VIEWS],
    pub len: usize,
}

impl Sequence {
    // The views that it has: of a length above the row's, all fifteen.
    fn as_slice(&self) -> &[u16]
        ensures views { result.now ≡ views_of self.now }
        ensures short { length result.now ≤ 15 }
    {
        &self.views[..self.len.min(VIEWS)]
    }
}

pub fn empty() -> Sequence
    ensures { result ≡ row_of [] }
{
    Sequence {
        views: [0; VIEWS],
        len: 0,
    }
}

// "it has at most 15": of a length above that, all fifteen count.
pub fn count(q: Sequence) -> usize
    ensures { (result ≡ length (views_of q)) × (result ≤ 15) }
{
    q.as_slice().len()
}

// The view at place i; 0 where there is none.
pub fn view_at(q: Sequence, i: usize) -> u16
    ensures { result ≡ get_or (views_of q) i 0 }
{
    q.as_slice().get(i).copied().unwrap_or(0)
}

// The same views, with the unused entries zero: two rows of the same views are then equal.
pub fn kept(q: Sequence) -> Sequence
    ensures { result ≡ row_of (views_of q) }
{
    rest(empty(), q.as_slice())
}

pub fn has(q: Sequence, v: u16) -> bool
    ensures { result ≡ has_of (views_of q) v }
{
    q.as_slice().contains(&v)
}

// q has a view that own lacks.
#[tactic(auto, unfolding(crate::specs::Chain::some))]
pub fn lacks(q: Sequence, own: Sequence) -> bool
    ensures { result ≡ lacks_of (views_of q) (views_of own) }
{
    q.as_slice().iter().any(|v| !has(own, *v))
}

// Some view of own clashes with v.
#[tactic(auto, unfolding(crate::specs::Chain::some))]
fn clashes(v: u16, own: Sequence) -> bool
    ensures { result ≡ some (clash_of v) (views_of own) }
{
    own.as_slice().iter().any(|w| clash(v, *w))
}

// Some view of q and some view of own differ and neither includes the other.
#[tactic(auto, unfolding(crate::specs::Chain::some))]
pub fn conflict(q: Sequence, own: Sequence) -> bool
    ensures { result ≡ conflict_of (views_of q) (views_of own) }
{
    q.as_slice().iter().any(|v| clashes(*v, own))
}

pub fn same(a: Sequence, b: Sequence) -> bool
    ensures { result ≡ same_of (views_of a) (views_of b) }
{
    a.as_slice() == b.as_slice()
}

// The innermost view; 0 where there is none.
pub fn least(q: Sequence) -> u16
    ensures { result ≡ least_of (views_of q) }
{
    q.as_slice().first().copied().unwrap_or(0)
}

// The outermost view; 0 where there is none.
pub fn most(q: Sequence) -> u16
    ensures { result ≡ most_of (views_of q) }
{
    q.as_slice().last().copied().unwrap_or(0)
}

pub fn single(v: u16) -> Sequence
    ensures { result ≡ row_of (v ∷ []) }
{
    push(empty(), v)
}

// The place of the first of the views that is not below v.
fn place_for(v: u16, views: &[u16]) -> Option<usize>
    ensures within { IfSome result (λ i. i < length views.now) }
    ensures place { result ≡ position (leb v) views.now }
{
    views.iter().position(|w| v <= *w)
}

// One view more, at its place.
pub fn plus(v: u16, q: Sequence) -> Sequence
    ensures { result ≡ row_of (plus_of v (views_of q)) }
{
    let views = q.as_slice();
    let place = place_for(v, views).unwrap_or(views.len());
    let (below, onward) = views.split_at(place);
    let start = rest(empty(), below);
    if onward.starts_with(&[v]) {
        return rest(start, onward);
    }
    rest(push(start, v), onward)
}

// The views of b and these, each put at its place, the outermost first.
fn all_placed(views: &[u16], b: Sequence) -> Sequence
    ensures { result ≡ fold (λ r v. row_of (plus_of v (views_of r))) b (reverse views.now) }
{
    views.iter().rev().fold(b, |r, v| plus(*v, r))
}

// "otherwise own becomes the union of both"
pub fn union(a: Sequence, b: Sequence) -> Sequence
    ensures { result ≡ row_of (union_of (views_of a) (views_of b)) }
{
    all_placed(a.as_slice(), kept(b))
}

// The own sequence after the proposal q is heard: the Proposal rule.
pub fn heard(own: Sequence, converged: Sequence, q: Sequence) -> Sequence
    ensures { result ≡ row_of (heard_of (views_of own) (views_of converged) (views_of q)) }
{
    if !lacks(q, own) {
        kept(own)
    } else if conflict(q, own) {
        plus(join(most(own), most(q)), converged)
    } else {
        union(q, own)
    }
}

// The views of q that strictly include w.
pub fn beyond(w: u16, q: Sequence) -> Sequence
    ensures { result ≡ row_of (beyond_of w (views_of q)) }
{
    let mut a = empty();
    for x in q.as_slice() {
        if inside(w, *x) {
            a = push(a, *x);
        }
    }
    a
}

// Each view of q strictly includes the one before it, the first one v.
pub fn above(v: u16, q: Sequence) -> bool
    ensures { result ≡ above_of v (views_of q) }
{
    let mut last = v;
    for w in q.as_slice() {
        if !inside(last, *w) {
            return false;
        }
        last = *w;
    }
    true
}
