//! Laws of the definitions.
ghost use Rattle.std.specs.Prelude.{◌≡◌, List, ℕ};
ghost use Rattle.std.specs.List.{concat};
ghost use Rattle.kc_trace.specs.Machine.{Progress, feed, feed_each};

/// Reading the pieces in turn is reading the whole.
pub fn cutting()
    ensures { (progress : Progress) (pieces : List (List ℕ)) → feed_each progress pieces ≡ feed progress (concat pieces) }
{}
