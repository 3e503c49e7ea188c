// `ringing`: the promise that there is no ringing where no weight is negative, which sets it is about, and a window that rings. No functions.
#![tactic(auto)]
