// Document 01's watch, computed from the definition that the public watched run is equated with: theorems alone.
#![tactic(auto)]
