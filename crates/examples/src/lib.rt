// The examples that document 01 marks P, as document 02 leaves them, and examples of 02's requests, proved as one statement. No function.

#![tactic(auto)]
