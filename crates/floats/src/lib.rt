// `floats`: laws on the IEEE 754 model: operations by the fractions that values equal, bounds, signed order, whole numbers, bit patterns.
// Stated over the format where they can be. No functions.
#![tactic(auto)]
