// What a call may rely on once no row refuses it, and what single writes keep. Definitions and laws only.
#![tactic(auto)]
