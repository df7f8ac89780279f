// The interpolant reading in document 01's words: the least Q through the settled places and its 98 bytes. It knows of no session and of no way to compute them.
#![tactic(auto)]
