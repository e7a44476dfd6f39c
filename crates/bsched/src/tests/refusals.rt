//! Worked rows of calls that are repeated or refused, and of imports that are.

pub const ROWS: &str = r#"
~ call scheduler {"authenticator":"$","rpc_seqno":$,"host_info":{"host_cpid":"$","p_fpops":1000,"m_nbytes":8000,"d_free":9000},"platform_name":"linux"$}

= a repeat in another spelling is told the same
# other blanks, another order, a default written out, an unknown member
> 1970-01-01T00:16:40Z call k1 1 c1
< 200 {"end_word":"enough","host_total_credit":0,"hostid":1,"request_delay":60,"result_abort":[],"result_ack":[],"results":[],"rpc_seqno":1,"user_name":"Ann","user_total_credit":0}
> 1970-01-01T00:16:41Z scheduler  { "platform_name" : "linux", "nobody":{"x":[1.5e3,null]}, "hostid":0 ,"host_info":{"d_free":9000,"m_nbytes":8000,"p_fpops":1000,"host_cpid":"c1"}, "rpc_seqno":1,"authenticator":"k1"} 
< 200 {"end_word":"enough","host_total_credit":0,"hostid":1,"request_delay":60,"result_abort":[],"result_ack":[],"results":[],"rpc_seqno":1,"user_name":"Ann","user_total_credit":0}

= another request under the same number is refused
> 1970-01-01T00:16:40Z call k1 1 c1
< 200 {"end_word":"enough","host_total_credit":0,"hostid":1,"request_delay":60,"result_abort":[],"result_ack":[],"results":[],"rpc_seqno":1,"user_name":"Ann","user_total_credit":0}
> 1970-01-01T00:16:40Z call k1 1 c1 ,"work_req_seconds":100
< 409 {"error":"reused","last":1,"number":11}

= an older number is stale
> 1970-01-01T00:16:40Z call k1 3 c1
< 200 {"end_word":"enough","host_total_credit":0,"hostid":1,"request_delay":60,"result_abort":[],"result_ack":[],"results":[],"rpc_seqno":3,"user_name":"Ann","user_total_credit":0}
> 1970-01-01T00:16:40Z call k1 2 c1
< 409 {"error":"stale","last":3,"number":10}

= each of the latest four calls is repeated, and an older one is stale
> 1970-01-01T00:16:41Z call k1 1 c1
< 200 {"end_word":"enough","host_total_credit":0,"hostid":1,"request_delay":60,"result_abort":[],"result_ack":[],"results":[],"rpc_seqno":1,"user_name":"Ann","user_total_credit":0}
> 1970-01-01T00:16:42Z call k1 2 c1
< 200 {"end_word":"enough","host_total_credit":0,"hostid":1,"request_delay":60,"result_abort":[],"result_ack":[],"results":[],"rpc_seqno":2,"user_name":"Ann","user_total_credit":0}
> 1970-01-01T00:16:43Z call k1 3 c1
< 200 {"end_word":"enough","host_total_credit":0,"hostid":1,"request_delay":60,"result_abort":[],"result_ack":[],"results":[],"rpc_seqno":3,"user_name":"Ann","user_total_credit":0}
> 1970-01-01T00:16:44Z call k1 4 c1
< 200 {"end_word":"enough","host_total_credit":0,"hostid":1,"request_delay":60,"result_abort":[],"result_ack":[],"results":[],"rpc_seqno":4,"user_name":"Ann","user_total_credit":0}
> 1970-01-01T00:16:45Z call k1 5 c1
< 200 {"end_word":"enough","host_total_credit":0,"hostid":1,"request_delay":60,"result_abort":[],"result_ack":[],"results":[],"rpc_seqno":5,"user_name":"Ann","user_total_credit":0}
> 1970-01-01T00:33:20Z call k1 2 c1
< 200 {"end_word":"enough","host_total_credit":0,"hostid":1,"request_delay":60,"result_abort":[],"result_ack":[],"results":[],"rpc_seqno":2,"user_name":"Ann","user_total_credit":0}
> 1970-01-01T00:33:20Z call k1 1 c1
< 409 {"error":"stale","last":5,"number":10}
> 1970-01-01T00:33:20Z call k1 3 c1 ,"work_req_seconds":100
< 409 {"error":"reused","last":5,"number":11}

= the last number of all is repeated, and nothing is fresh behind it
> 1970-01-01T00:16:40Z call k1 2147483647 c1
< 200 {"end_word":"enough","host_total_credit":0,"hostid":1,"request_delay":60,"result_abort":[],"result_ack":[],"results":[],"rpc_seqno":2147483647,"user_name":"Ann","user_total_credit":0}
> 1970-01-01T00:16:40Z call k1 2147483647 c1
< 200 {"end_word":"enough","host_total_credit":0,"hostid":1,"request_delay":60,"result_abort":[],"result_ack":[],"results":[],"rpc_seqno":2147483647,"user_name":"Ann","user_total_credit":0}
> 1970-01-01T00:16:40Z call k1 0 c1
< 409 {"error":"stale","last":2147483647,"number":10}

= an array in an array two hundred times is no JSON
> 1970-01-01T00:16:40Z scheduler {"x":[[[[[[[[[[[[[[[[[[[[[[[[[[[[[[[[[[[[[[[[[[[[[[[[[[[[[[[[[[[[[[[[[[[[[[[[[[[[[[[[[[[[[[[[[[[[[[[[[[[[[[[[[[[[[[[[[[[[[[[[[[[[[[[[[[[[[[[[[[[[[[[[[[[[[[[[[[[[[[[[[[[[[[[[[[[[[[[[[[[[[[[[[[[[[[[[[[[[[[[[]]]]]]]]]]]]]]]]]]]]]]]]]]]]]]]]]]]]]]]]]]]]]]]]]]]]]]]]]]]]]]]]]]]]]]]]]]]]]]]]]]]]]]]]]]]]]]]]]]]]]]]]]]]]]]]]]]]]]]]]]]]]]]]]]]]]]]]]]]]]]]]]]]]]]]]]]]]]]]]]]]]]]]]]]]]]]]]]]]]]]]]]]]]]]]]]]]]]]]]]}
< 400 {"error":"bad_json","number":6}

= a wrong number and a wrong account are told
> 1970-01-01T00:16:40Z call k1 1 c1 ,"hostid":7
< 409 {"error":"bad_host","number":9}
> 1970-01-01T00:16:40Z call k8 1 c1
< 403 {"error":"bad_account","number":8}

= a host too many is refused
> 1970-01-01T00:16:40Z call k1 1 c1
< 200 {"end_word":"enough","host_total_credit":0,"hostid":1,"request_delay":60,"result_abort":[],"result_ack":[],"results":[],"rpc_seqno":1,"user_name":"Ann","user_total_credit":0}
> 1970-01-01T00:16:40Z call k2 1 c2
< 200 {"end_word":"enough","host_total_credit":0,"hostid":2,"request_delay":60,"result_abort":[],"result_ack":[],"results":[],"rpc_seqno":1,"user_name":"Bob","user_total_credit":0}
> 1970-01-01T00:16:40Z call k3 1 c3
< 200 {"end_word":"enough","host_total_credit":0,"hostid":3,"request_delay":60,"result_abort":[],"result_ack":[],"results":[],"rpc_seqno":1,"user_name":"Cid","user_total_credit":0}
> 1970-01-01T00:16:40Z call k1 1 c9
< 409 {"error":"hosts_full","number":12}

= a body may be no request
> 1970-01-01T00:16:40Z scheduler 
< 400 {"error":"bad_json","number":6}
> 1970-01-01T00:16:40Z scheduler
< 400 {"error":"bad_json","number":6}
> 1970-01-01T00:16:40Z scheduler []
< 400 {"error":"bad_json","number":6}
> 1970-01-01T00:16:40Z scheduler {}
< 400 {"error":"bad_member","member":"authenticator","number":7}
> 1970-01-01T00:16:40Z scheduler {"authenticator":"k1","rpc_seqno":1.5}
< 400 {"error":"bad_member","member":"rpc_seqno","number":7}

= names are acknowledged and aborted once
> 1970-01-01T00:16:40Z call k1 1 c1 ,"work_req_seconds":5,"other_results":["zz_0","zz_0"],"results":[{"name":"q_0","exit_status":0},{"name":"q_0","exit_status":1}]
< 200 {"end_word":"no_eligible_work","host_total_credit":0,"hostid":1,"request_delay":60,"result_abort":["zz_0"],"result_ack":["q_0"],"results":[],"rpc_seqno":1,"user_name":"Ann","user_total_credit":0}

= a batch sent twice counts once
> 1970-01-01T00:00:00Z import/accounts/b1 "authenticator,name\nk5,Eve\n"
< 200 {"batch":"b1","kind":"accounts","rows":1}
> 1970-01-01T00:00:00Z import/accounts/b1  "authenticator,name\nk5,Eve\n" 
< 200 {"batch":"b1","kind":"accounts","rows":1}
> 1970-01-01T00:00:00Z import/accounts/b1 "authenticator,name\nk5,Evf\n"
< 409 {"error":"batch_reused","number":17}
> 1970-01-01T00:00:00Z import/apps/b1 "name,agreement\nscan,exact\n"
< 200 {"batch":"b1","kind":"apps","rows":1}

= an import with a name twice is refused whole
# none of its rows stands, and the batch stays free
> 1970-01-01T00:00:00Z import/accounts/b2 "authenticator,name\nk6,A\nk7,B\nk6,C\n"
< 409 {"error":"duplicate_name","number":15,"row":3}
> 1970-01-01T00:00:00Z import/accounts/b2 "authenticator,name\nk6,A\nk7,B\n"
< 200 {"batch":"b2","kind":"accounts","rows":2}

= an import with a faulty row is refused whole
> 1970-01-01T00:00:00Z import/versions/v1 "app,platform,version_num\ndock,linux,0\n"
< 400 {"column":3,"error":"bad_csv","number":14,"row":1}
> 1970-01-01T00:00:00Z import/versions/v1 "app,platform,version_num\nnope,linux,1\n"
< 409 {"error":"unknown_reference","number":16,"row":1}
> 1970-01-01T00:00:00Z import/versions/v1 "app,platform,version_num\nnope,linux,1\ndock,linux,5\ndock,linux,5\n"
< 409 {"error":"duplicate_name","number":15,"row":3}

= what stands may not be imported again
> 1970-01-01T00:00:00Z import/accounts/d1 "authenticator,name\nk5,Eve\nk1,Ann\n"
< 409 {"error":"duplicate_name","number":15,"row":2}
> 1970-01-01T00:00:00Z import/apps/d1 "name,agreement\ndock,exact\n"
< 409 {"error":"duplicate_name","number":15,"row":1}
> 1970-01-01T00:00:00Z import/versions/d1 "app,platform,version_num\nfold,linux,101\ndock,win,101\ndock,linux,101\n"
< 409 {"error":"duplicate_name","number":15,"row":3}

= a table of a hundred applications takes no more
# two stand; a header alone adds none
> 1970-01-01T00:00:00Z import/apps/p1 "name,agreement\np1_0,exact\np1_1,exact\np1_2,exact\np1_3,exact\np1_4,exact\np1_5,exact\np1_6,exact\np1_7,exact\np1_8,exact\np1_9,exact\np1_10,exact\np1_11,exact\np1_12,exact\np1_13,exact\np1_14,exact\np1_15,exact\np1_16,exact\np1_17,exact\np1_18,exact\np1_19,exact\np1_20,exact\np1_21,exact\np1_22,exact\np1_23,exact\np1_24,exact\np1_25,exact\np1_26,exact\np1_27,exact\np1_28,exact\np1_29,exact\np1_30,exact\np1_31,exact\np1_32,exact\np1_33,exact\np1_34,exact\np1_35,exact\np1_36,exact\np1_37,exact\np1_38,exact\np1_39,exact\np1_40,exact\np1_41,exact\np1_42,exact\np1_43,exact\np1_44,exact\np1_45,exact\np1_46,exact\np1_47,exact\np1_48,exact\np1_49,exact\np1_50,exact\np1_51,exact\np1_52,exact\np1_53,exact\np1_54,exact\np1_55,exact\np1_56,exact\np1_57,exact\np1_58,exact\np1_59,exact\np1_60,exact\np1_61,exact\np1_62,exact\np1_63,exact\np1_64,exact\np1_65,exact\np1_66,exact\np1_67,exact\np1_68,exact\np1_69,exact\np1_70,exact\np1_71,exact\np1_72,exact\np1_73,exact\np1_74,exact\np1_75,exact\np1_76,exact\np1_77,exact\np1_78,exact\np1_79,exact\np1_80,exact\np1_81,exact\np1_82,exact\np1_83,exact\np1_84,exact\np1_85,exact\np1_86,exact\np1_87,exact\np1_88,exact\np1_89,exact\np1_90,exact\np1_91,exact\np1_92,exact\np1_93,exact\np1_94,exact\np1_95,exact\np1_96,exact\np1_97,exact\np1_98,exact\n"
< 409 {"error":"table_full","number":18}
> 1970-01-01T00:00:00Z import/apps/p2 "name,agreement\np2_0,exact\np2_1,exact\np2_2,exact\np2_3,exact\np2_4,exact\np2_5,exact\np2_6,exact\np2_7,exact\np2_8,exact\np2_9,exact\np2_10,exact\np2_11,exact\np2_12,exact\np2_13,exact\np2_14,exact\np2_15,exact\np2_16,exact\np2_17,exact\np2_18,exact\np2_19,exact\np2_20,exact\np2_21,exact\np2_22,exact\np2_23,exact\np2_24,exact\np2_25,exact\np2_26,exact\np2_27,exact\np2_28,exact\np2_29,exact\np2_30,exact\np2_31,exact\np2_32,exact\np2_33,exact\np2_34,exact\np2_35,exact\np2_36,exact\np2_37,exact\np2_38,exact\np2_39,exact\np2_40,exact\np2_41,exact\np2_42,exact\np2_43,exact\np2_44,exact\np2_45,exact\np2_46,exact\np2_47,exact\np2_48,exact\np2_49,exact\np2_50,exact\np2_51,exact\np2_52,exact\np2_53,exact\np2_54,exact\np2_55,exact\np2_56,exact\np2_57,exact\np2_58,exact\np2_59,exact\np2_60,exact\np2_61,exact\np2_62,exact\np2_63,exact\np2_64,exact\np2_65,exact\np2_66,exact\np2_67,exact\np2_68,exact\np2_69,exact\np2_70,exact\np2_71,exact\np2_72,exact\np2_73,exact\np2_74,exact\np2_75,exact\np2_76,exact\np2_77,exact\np2_78,exact\np2_79,exact\np2_80,exact\np2_81,exact\np2_82,exact\np2_83,exact\np2_84,exact\np2_85,exact\np2_86,exact\np2_87,exact\np2_88,exact\np2_89,exact\np2_90,exact\np2_91,exact\np2_92,exact\np2_93,exact\np2_94,exact\np2_95,exact\np2_96,exact\np2_97,exact\n"
< 200 {"batch":"p2","kind":"apps","rows":98}
> 1970-01-01T00:00:00Z import/apps/p3 "name,agreement\np3_0,exact\n"
< 409 {"error":"table_full","number":18}
> 1970-01-01T00:00:00Z import/apps/p3 "name,agreement\n"
< 200 {"batch":"p3","kind":"apps","rows":0}
"#;
