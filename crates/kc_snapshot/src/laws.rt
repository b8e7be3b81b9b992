//! Laws of the definitions.
ghost use Rattle.std.specs.Prelude.{◌≡◌};
ghost use Rattle.kc_model.specs.State.{State};
ghost use Rattle.kc_model.specs.Lawful.{IsLawful};
ghost use Rattle.kc_snapshot.specs.declared.unlawful.Unlawful.{Unlawful as Reason};
ghost use Rattle.kc_snapshot.specs.declared.unlawful.Unlawful.TheVariants.{Memory};
ghost use Rattle.kc_snapshot.specs.Told.{Told, told_of};
ghost use Rattle.kc_snapshot.specs.Unlawful.{IsUnlawful};

/// A dump and what it leaves out are those of one lawful state.
pub fn one_state()
    ensures { (m n : State) → IsLawful m → IsLawful n → told_of m ≡ told_of n → m ≡ n }
{}

/// What is refused describes no lawful state.
pub fn unlawful()
    ensures { (t : Told) (why : Reason) → (why ≡ Memory → ⊥) → IsUnlawful t why → (m : State) → IsLawful m → told_of m ≡ t → ⊥ }
{}
