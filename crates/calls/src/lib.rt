// Sessions and lists of calls on them, of every modem and whatever struct keeps a session's fields: what its calls promise, and that
// every list of them answers as the book does. No code.
#![tactic(auto)]
