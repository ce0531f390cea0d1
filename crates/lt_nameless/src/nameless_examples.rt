//! Examples of nameless forms. Each function does nothing: its contract is the example.
ghost use Rattle.std.specs.Prelude.{◌≡◌, [], codes};
ghost use Rattle.lt_definitions.specs.Types.{bool};
ghost use Rattle.lt_definitions.specs.Samples.{lambda, app, bound, free};
ghost use Rattle.lt_nameless.specs.Nameless.{nameless, nameless_free, nameless_bound, nameless_loose, nameless_application, nameless_abstraction};

/// A bound name becomes the number of binders between it and its own, and a loose name stays.
pub fn nameless_forms()
    ensures indices { nameless [] (lambda "x" bool (lambda "y" bool (app (bound "x") (bound "y"))))
        ≡ nameless_abstraction bool (nameless_abstraction bool (nameless_application (nameless_bound 1) (nameless_bound 0))) }
    ensures shadowed { nameless [] (lambda "x" bool (lambda "x" bool (bound "x"))) ≡ nameless_abstraction bool (nameless_abstraction bool (nameless_bound 0)) }
    ensures loose { nameless [] (lambda "x" bool (bound "z")) ≡ nameless_abstraction bool (nameless_loose (codes "z")) }
    ensures free_stays { nameless [] (lambda "x" bool (free "x" bool)) ≡ nameless_abstraction bool (nameless_free (codes "x") bool) }
{}
