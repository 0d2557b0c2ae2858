//! The order of flights in a map.
ghost use Rattle.std.specs.Prelude.{refl, Some};
ghost use Rattle.std.proofs.lemmas.Cmp.{eq_by_cmp_equiv};
ghost use Rattle.state_store.specs.Common.{partial_equiv_from_equiv, po};
ghost use Rattle.state_store.specs.Store.{by_key, key_total, same_key};

use crate::flight_key::FlightKey;
use std::cmp::Ordering;

impl PartialEq for FlightKey {
    ghost eq = { same_key };

    ghost laws = { partial_equiv_from_equiv (eq_by_cmp_equiv key_total) };

    fn eq(&self, other: &FlightKey) -> bool {
        self.cmp(other) == Ordering::Equal
    }
}

impl Eq for FlightKey {
    ghost laws = { eq_by_cmp_equiv key_total };
}

impl PartialOrd for FlightKey {
    ghost partial_cmp = { λ a b. Some (by_key a b) };

    ghost laws = { po key_total (λ a b. refl) };

    fn partial_cmp(&self, other: &FlightKey) -> Option<Ordering> {
        Some(self.cmp(other))
    }
}

impl Ord for FlightKey {
    ghost cmp = { by_key };

    ghost total = { key_total };

    ghost matches_partial_cmp = { λ a b. refl };

    ghost matches_eq = { λ a b. refl };

    fn cmp(&self, other: &FlightKey) -> Ordering {
        self.text()
            .cmp(other.text())
            .then(self.flight.day.cmp(&other.flight.day))
    }
}
