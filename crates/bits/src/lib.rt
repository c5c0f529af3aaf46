// Bits of a register and tests on Bool: definitions and laws, no functions. Code writes `x & m != 0`,
// `x | m`, `x & !m` and `(x & keep) | set`, which mean `has x m`, `raised m x`, `lowered m x` and `masked keep set x`.
#![tactic(auto)]
