//! What stands for a type that a closure can't name.
ghost use Rattle.std.specs.Prelude.{◌≡◌};

/// A value that a scope of threads is given or hands back.
///
/// A closure can neither hold nor hand back a type that depends on what a bound tells in proofs alone, as that of a gate, of its passes
/// and of slots does. It can where the type is a parameter: so a function that runs such a closure has parameters that stand for the
/// types, and is called at the types themselves.
pub trait HandBack {
    type Value;

    /// What it stands for.
    ghost value: { Self → Self.Value };

    fn of(given: Self::Value) -> Self
        ensures { value result ≡ given };

    fn into_value(self) -> Self::Value
        ensures { result ≡ value self };
}

/// The same of a value that is lent to the scope.
pub trait Lends {
    type Value;

    /// What is lent.
    ghost lent: { Self → Self.Value };

    fn lend(&self) -> &Self::Value
        ensures { result.now ≡ lent self.now };
}
