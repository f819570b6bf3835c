// Laws and small operations that know nothing of document 01. No code: everything stands in specs/.

#![tactic(auto)]
