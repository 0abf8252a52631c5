// The laws of f32 and f64 that the promises rest on: theorems in specs/, over the logic's own floats (lib.Ieee), no code. Its chapters, each on those before:
//   Nearest     rounding to p binary digits, among natural numbers
//   Value       a finite float as two natural numbers, hi - lo of its format's smallest unit
//   Order       the tests le, lt and eq, from values and back
//   Rounding    an exact value rounded: order, held values, error, exactness, no overflow
//   Sums        sums and differences
//   Zero        when equal values are equal floats; x + 0 and x - x
//   Whole       whole numbers, and multiples of a power of two, add exactly
//   Products    products, in bounds and exact
//   Constants   products with a constant, and with a power of two
//   Conversion  a float rounded to a format: order, identity, sign, bounds
//   Bits        the bit pattern of a rounded value
//   Within      the test of a value against a limit
#![tactic(auto)]
