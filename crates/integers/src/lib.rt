// `integers`: definitions and laws on signed sums, their division rounding down, the clip to 0 .. M, and the whole number nearest
// to a fraction. Stated over the largest sample M and over the width, never over one integer type. No functions.
#![tactic(auto)]
