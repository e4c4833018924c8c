// Sets of relations in the order in which a search tries them, whatever the order is.
#![tactic(auto)]

ghost use Rattle.std.specs.Prelude.{◌≡◌};
ghost use Rattle.rules.specs.Search.{Order};
ghost use Rattle.orders.specs.Orders.{pick, unpicked};

use relations::{Relation, RelationSet};

// Picks the relation of a set that comes first in the order, as a set of one; nothing of an empty set.
pub fn pick(order: &[Relation], set: RelationSet) -> RelationSet
    requires { Order order.now }
    ensures { result ≡ pick order.now set }
{
    for &relation in order {
        let one = RelationSet::from(relation);
        if !(set & one).is_empty() {
            return one;
        }
    }
    RelationSet::EMPTY
}

// Drops from a set the relation that `pick` gives, which is the one that the search would try next.
pub fn unpicked(order: &[Relation], set: RelationSet) -> RelationSet
    requires { Order order.now }
    ensures { result ≡ unpicked order.now set }
{
    let failed = pick(order, set);
    set & !failed
}
