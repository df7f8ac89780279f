// The modem with 512 places over GF(64): what the family says of it, in numbers, and what its sessions will promise. No code.
#![tactic(auto)]
