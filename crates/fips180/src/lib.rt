// SHA-256 by FIPS 180-4 as a definition: there is no code here.
//
// specs/Sha256.antt has the standard's functions, constants, padding and rounds in its own names, to be read beside
// it; specs/Vectors.antt computes its published digests. The key of an alarm is defined by these
// (definition, specs/Key.antt), and crate `sha256` is the code that is proved equal: so the definition depends on no code.
// PaddingLaws and StepLaws serve that proof.

#![tactic(auto)]
