// The book of a session, in document 01's words: what every call must answer, fed only the arguments of the calls.
// It knows nothing of the session that the program keeps: numbers and lists alone.
#![tactic(auto)]
