// `sideways_promises`: sums of frames, flat frames and no ringing, of the sideways pass and the frame as it lies. No functions.
#![tactic(auto)]
