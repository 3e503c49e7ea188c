// `window_cuts`: a run of a set's windows computed alone gives those display lines, or columns, of the whole, and a rectangle of the display is cut by both. No functions.
#![tactic(auto)]
