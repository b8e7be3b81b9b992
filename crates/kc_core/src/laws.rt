//! What holds of every call on parts, by the definitions.
ghost use Rattle.kc_core.specs.Locality.{IsLocality, IsLocalityOfParts};

/// What `apply` promises of the parts that it is given, it does with every lawful state that they are cut from; and if
/// they have that state's links and ends too, it leaves those of the next state.
pub fn locality()
    ensures states { IsLocality }
    ensures parts { IsLocalityOfParts }
{}
