//! How many challenges a helper can win by. These functions do nothing: each contract is a fact
//! that holds.

ghost use Rattle.std.specs.Prelude.{ℕ, ◌*◌, ◌-◌, ◌^◌, ◌≤◌, List};
ghost use Rattle.sip_field.specs.Moduli.{m61_modulus};
ghost use Rattle.sip_vector.specs.declared.update.Side.TheVariants.{First};
ghost use Rattle.sip_vector.specs.declared.update.Update.{Update as AnyUpdate};
ghost use Rattle.sip_vector.specs.Streams.{vector, IsLegal};
ghost use Rattle.sip_counts.specs.Strategies.{Strategy, IsOfBytes};
ghost use Rattle.sip_wire.specs.declared.version.Version.{Version};
ghost use Rattle.sip_lookup.specs.declared.lookup.Lookup.{Lookup as AnyLookup};
ghost use Rattle.sip_lookup.specs.Lookups.{CanLook};
ghost use Rattle.sip_lookup.specs.AcceptsLook.{fooled_look};

/// An answer to a lookup that is not the stream's own is accepted at no more than d·p^(d - 1) of
/// the p^d vectors of challenges, p being 2^61 - 1, whatever the helper replies, each reply by the
/// challenges before it: the place that it names depends on none, and from there on it has to have
/// wrong entries of that interval accepted.
pub fn few_challenges_for_wrong_lookups()
    ensures { (version : Version) (d : ℕ) (l : AnyLookup) (stream : List AnyUpdate)
        (strategy : Strategy) → CanLook d l → IsLegal d stream → IsOfBytes strategy
        → fooled_look version d (vector d stream First) l strategy ≤ d * m61_modulus ^ (d - 1) }
{}
