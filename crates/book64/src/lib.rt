// The book of the modem of 64 places: its numbers, captures, readings, look-ups and the elimination engine, in the words of documents 01 and 02.
// It knows nothing of the session that the program keeps: numbers and lists alone.
#![tactic(auto)]
