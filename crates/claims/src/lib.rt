// No code: the theorems that answer the three demands and document 01's "How tight the promises are".
#![tactic(auto)]
