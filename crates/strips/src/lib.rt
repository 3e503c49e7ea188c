// `strips`: the promise that a strip of columns may be resampled as a frame of its own, of both integer passes. The programs over files rest on it. No functions.
#![tactic(auto)]
