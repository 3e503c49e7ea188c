// `sideways`: what the sideways u16 pass answers and writes, and that it is the vertical pass on the frame with rows and columns exchanged. No functions.
#![tactic(auto)]
